//! Networks and the application.

ghost use Rattle.std.specs.Prelude.{◌≡◌, [], IfOk};
ghost use Rattle.fb_read.specs.Parser.{Reads};
ghost use Rattle.fb_read.specs.Network as spec;

use crate::cursor::Cursor;
use crate::fault::ParseFault;
use crate::rule::{Rule, ended, many, pair, section, separated};
use crate::token::Mark;
use fb_types::{
    Application, Connection, Instance, Items, Name, Network, Numbered, Parameter, PortName, Value,
};

impl Rule for PortName {
    ghost parser = { spec.port };

    #[tactic(auto, unfolding(crate::specs::Network::port))]
    fn read(cursor: &mut Cursor<'_>) -> Result<PortName, ParseFault> {
        let first = Name::read(cursor)?;
        if cursor.eat(Mark::Dot) {
            let port = Name::read(cursor)?;
            Ok(PortName {
                component: Some(first),
                port,
            })
        } else {
            Ok(PortName {
                component: None,
                port: first,
            })
        }
    }
}

impl Rule for Connection {
    ghost parser = { spec.connection };

    fn read(cursor: &mut Cursor<'_>) -> Result<Connection, ParseFault> {
        let (from, to) = pair::<PortName, PortName>(cursor, Mark::To)?;
        ended(cursor, Mark::Semicolon, Connection { from, to })
    }
}

/// A constant: a truth value, or a whole number.
impl Rule for Value {
    ghost parser = { spec.constant };

    #[tactic(auto, unfolding(crate::specs::Network::constant))]
    fn read(cursor: &mut Cursor<'_>) -> Result<Value, ParseFault> {
        if cursor.eat(Mark::True) {
            Ok(Value::Bool(true))
        } else if cursor.eat(Mark::False) {
            Ok(Value::Bool(false))
        } else if cursor.eat(Mark::Minus) {
            Ok(Value::Whole(cursor.whole()?.negative()))
        } else {
            Ok(Value::Whole(cursor.literal()?))
        }
    }
}

impl Rule for Parameter {
    ghost parser = { spec.parameter };

    fn read(cursor: &mut Cursor<'_>) -> Result<Parameter, ParseFault> {
        let (name, value) = pair::<Name, Value>(cursor, Mark::Assign)?;
        Ok(Parameter { name, value })
    }
}

#[tactic(auto, unfolding(crate::specs::Network::parameters))]
fn parameters(cursor: &mut Cursor<'_>) -> Result<Items<Parameter>, ParseFault>
    ensures { Reads (spec.parameters cursor.old) result cursor.new }
{
    if cursor.eat(Mark::Open) {
        let found = separated::<Parameter>(cursor)?;
        ended(cursor, Mark::Close, found)
    } else {
        Ok(cursor.no_items())
    }
}

impl Rule for Instance {
    ghost parser = { spec.instance };

    fn read(cursor: &mut Cursor<'_>) -> Result<Instance, ParseFault> {
        let (name, block_type) = pair::<Name, Name>(cursor, Mark::Colon)?;
        let parameters = parameters(cursor)?;
        let found = Instance {
            name,
            block_type,
            parameters,
        };
        ended(cursor, Mark::Semicolon, found)
    }
}

impl Rule for Network {
    ghost parser = { spec.network };

    #[tactic(auto, unfolding(crate::specs::Network::network))]
    fn read(cursor: &mut Cursor<'_>) -> Result<Network, ParseFault> {
        cursor.expect(Mark::Fbs)?;
        cursor.bound(); // for the prover: how many tokens are left at most
        let instances = many::<Instance>(cursor, Mark::EndFbs)?;
        let event_connections = section::<Connection>(
            cursor,
            Mark::EventConnections,
            Mark::EndConnections,
        )?;
        let data_connections = section::<Connection>(
            cursor,
            Mark::DataConnections,
            Mark::EndConnections,
        )?;
        Ok(Network {
            instances: Numbered::new(instances),
            event_connections,
            data_connections,
        })
    }
}

impl Rule for Application {
    ghost parser = { spec.application };

    #[tactic(auto, unfolding(crate::specs::Network::application))]
    fn read(cursor: &mut Cursor<'_>) -> Result<Application, ParseFault> {
        cursor.expect(Mark::Application)?;
        let name = Name::read(cursor)?;
        let network = Network::read(cursor)?;
        ended(cursor, Mark::EndApplication, Application { name, network })
    }
}
