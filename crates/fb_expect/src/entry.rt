//! What a line of a trace says.

ghost use Rattle.std.specs.Prelude.{◌≡◌};
ghost use Rattle.fb_expect.specs.Fingerprints as prints;

use crate::fingerprint::fingerprint_of;

/// What a line of a trace says: the event, and the values with it.
#[derive(Clone, Copy)]
pub struct Entry<'a> {
    /// In milliseconds of virtual time.
    pub tick: u64,
    pub resource: &'a [u8],
    /// Whether the event is taken at an input, and otherwise it is emitted at an output.
    pub taken: bool,
    /// The path of the instance, a full stop, and the event.
    pub port: &'a [u8],
    /// What comes after the port: a blank and `VAR=value` for each value.
    pub values: &'a [u8],
    /// The print of the port.
    fingerprint: u64,
    ghost has_fingerprint: { fingerprint ≡ prints.fingerprint port.now },
}

impl<'a> Entry<'a> {
    /// The entry of these parts.
    pub fn of(
        tick: u64,
        resource: &'a [u8],
        taken: bool,
        port: &'a [u8],
        values: &'a [u8],
    ) -> Entry<'a>
        ensures tick { result.tick ≡ tick }
        ensures resource { result.resource ≡ resource.entry }
        ensures taken { result.taken ≡ taken }
        ensures port { result.port ≡ port.entry }
        ensures values { result.values ≡ values.entry }
    {
        Entry {
            tick,
            resource,
            taken,
            port,
            values,
            fingerprint: fingerprint_of(port),
        }
    }

    /// The print of the port.
    #[inline(always)]
    pub(crate) fn fingerprint(&self) -> u64
        ensures { result ≡ prints.fingerprint self.now.port.now }
    {
        self.fingerprint
    }
}
