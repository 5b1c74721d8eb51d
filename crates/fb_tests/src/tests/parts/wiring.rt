//! A network of two components: which ends its connections join, at components and at the boundary.
//! And one in which the second component is connected at a port with a high number alone.

use fb_check_names::{ConnectionEnd, NetworkNumbers, NumberedConnection};
use fb_system::Wiring;
use fb_types::Items;
use std::alloc::Global;
use std::mem::forget;
use std::process::Abort;

/// The first port at the boundary.
const BOUNDARY: ConnectionEnd = ConnectionEnd {
    component: None,
    port: 0,
};

/// The first port of the first component.
const FIRST: ConnectionEnd = ConnectionEnd {
    component: Some(0),
    port: 0,
};

/// The third port of the second component.
const THIRD_OF_SECOND: ConnectionEnd = ConnectionEnd {
    component: Some(1),
    port: 2,
};

/// A port of the second component with a high number.
const FAR_OF_SECOND: ConnectionEnd = ConnectionEnd {
    component: Some(1),
    port: 1_000_000,
};

/// The port before that one, which is not connected.
const NEXT_TO_FAR: ConnectionEnd = ConnectionEnd {
    component: Some(1),
    port: 999_999,
};

/// The connections of events and of data; the end to which the event connection leads that has this index among those
/// from an end; and the end from which the data connection to an end comes.
type Network = (
    &'static [NumberedConnection],
    &'static [NumberedConnection],
    &'static [(ConnectionEnd, usize, Option<ConnectionEnd>)],
    &'static [(ConnectionEnd, Option<ConnectionEnd>)],
);

/// Events from the boundary to the first component, and from there to both ends. Data from the first component to the
/// second, and from the second to the boundary.
static NEAR: Network = (
    &[
        NumberedConnection {
            from: BOUNDARY,
            to: FIRST,
        },
        NumberedConnection {
            from: FIRST,
            to: THIRD_OF_SECOND,
        },
        NumberedConnection {
            from: FIRST,
            to: BOUNDARY,
        },
    ],
    &[
        NumberedConnection {
            from: FIRST,
            to: THIRD_OF_SECOND,
        },
        NumberedConnection {
            from: THIRD_OF_SECOND,
            to: BOUNDARY,
        },
    ],
    &[
        (BOUNDARY, 0, Some(FIRST)),
        (BOUNDARY, 1, None),
        (FIRST, 0, Some(THIRD_OF_SECOND)),
        (FIRST, 1, Some(BOUNDARY)),
        (FIRST, 2, None),
        (THIRD_OF_SECOND, 0, None),
    ],
    &[
        (BOUNDARY, Some(THIRD_OF_SECOND)),
        (FIRST, None),
        (THIRD_OF_SECOND, Some(FIRST)),
    ],
);

/// Events from the first component to the far port, and from there to the boundary and back to the first component. Data
/// from the first component to the far port, and from there to the boundary. The ports below it have no ends.
static FAR: Network = (
    &[
        NumberedConnection {
            from: FIRST,
            to: FAR_OF_SECOND,
        },
        NumberedConnection {
            from: FAR_OF_SECOND,
            to: BOUNDARY,
        },
        NumberedConnection {
            from: FAR_OF_SECOND,
            to: FIRST,
        },
    ],
    &[
        NumberedConnection {
            from: FIRST,
            to: FAR_OF_SECOND,
        },
        NumberedConnection {
            from: FAR_OF_SECOND,
            to: BOUNDARY,
        },
    ],
    &[
        (FIRST, 0, Some(FAR_OF_SECOND)),
        (FIRST, 1, None),
        (FAR_OF_SECOND, 0, Some(BOUNDARY)),
        (FAR_OF_SECOND, 1, Some(FIRST)),
        (FAR_OF_SECOND, 2, None),
        (NEXT_TO_FAR, 0, None),
    ],
    &[
        (FAR_OF_SECOND, Some(FIRST)),
        (BOUNDARY, Some(FAR_OF_SECOND)),
        (NEXT_TO_FAR, None),
    ],
);

fn expect_end(rt: &impl Abort, found: Option<ConnectionEnd>, expected: Option<ConnectionEnd>) {
    match (found, expected) {
        (Some(found), Some(expected)) => {
            assert!(rt; found.component == expected.component && found.port == expected.port)
        }
        (found, expected) => assert!(rt; found.is_none() && expected.is_none()),
    }
}

fn expect_network(rt: &impl Abort, alloc: Global, network: &Network) {
    let (events, data, targets, sources) = *network;
    let numbers = NetworkNumbers {
        types: Items::new(alloc),
        parameters: Items::new(alloc),
        event_wires: Items::from_slice(alloc, events).expect(rt, "memory"),
        data_wires: Items::from_slice(alloc, data).expect(rt, "memory"),
    };
    let wiring = Wiring::of(alloc, numbers).expect(rt, "memory");
    expect_ends(rt, &wiring, targets, sources);
    assert!(rt; wiring.numbers().data_wires.len() == data.len());
    forget(wiring);
}

fn expect_ends(
    rt: &impl Abort,
    wiring: &Wiring,
    targets: &[(ConnectionEnd, usize, Option<ConnectionEnd>)],
    sources: &[(ConnectionEnd, Option<ConnectionEnd>)],
) {
    for (end, index, expected) in targets {
        let found = wiring.targets(*end).get(*index).copied();
        expect_end(rt, found, *expected);
    }
    for (end, expected) in sources {
        expect_end(rt, wiring.source(*end), *expected);
    }
}

/// The ports below the far one have no ends, of either kind of connections.
#[test]
fn connections_by_their_ends(rt: HostRuntime) {
    expect_network(&rt, rt.alloc(), &NEAR);
    expect_network(&rt, rt.alloc(), &FAR);
}
