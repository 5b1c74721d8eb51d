//! Steps that are left in a tick, and how a statement ends.

ghost use Rattle.std.specs.Prelude.{◌≡◌, suc, OnOk, IfErr};

use fb_types::Reason;

/// How a statement ends where no reason stops the run.
#[derive(Clone, Copy, PartialEq, Eq)]
pub enum Flow {
    /// The run goes on after it.
    Went,
    /// It left the loop around it.
    Left,
    /// It returned from the algorithm.
    Returned,
}

/// The steps that a resource has left in the current tick.
#[derive(Clone, Copy)]
pub struct Meter {
    pub left: u64,
}

impl Meter {
    /// Begins a step. With none left the run stops.
    #[inline(always)]
    pub fn step(&mut self) -> Result<(), Reason>
        ensures ok { OnOk result (self.old.left ≡ suc self.new.left) }
        ensures err { IfErr result (λ r. (r ≡ Reason.Steps) × (self.old.left ≡ 0) × (self.new.left ≡ 0)) }
    {
        if self.left == 0 {
            return Err(Reason::Steps);
        }
        self.left -= 1;
        Ok(())
    }
}
