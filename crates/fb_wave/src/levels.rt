//! What signals show after the lines that were read.

ghost use Rattle.std.specs.Prelude.{◌≡◌, ◌<◌, ℕ, ◌+◌, ◌^◌, List, ◌++◌, [], ◌∷◌, All, OnOk, length};

use fb_types::Value;
use std::alloc::{AllocError, Global};

/// What a signal shows.
#[derive(Clone, Copy)]
pub enum Level {
    /// The count of events of a port, in 64 bits.
    Count(u64),
    /// The last value of a variable.
    Last(Value),
}

/// A signal.
#[derive(Clone, Copy)]
pub struct Cell {
    /// What it shows.
    pub shown: Level,
    /// Set if a line of this tick has it.
    pub is_marked: bool,
}

/// All signals. Those of the lines of this tick are marked, in the order in which each came first.
#[derive(Drop)]
pub struct Levels {
    /// Each signal at the index of its number.
    pub cells: Vec<Cell>,
    /// The numbers of the marked ones.
    pub marked: Vec<usize>,
    pub ghost within: { All (λ s. s < length cells.items) marked.items },
}

impl Level {
    ghost use Rattle.fb_wave.specs.Levels as spec;

    /// What is shown after one more event.
    fn after_event(self) -> Level
        ensures { result ≡ spec.after_event self }
    {
        match self {
            Level::Count(count) => Level::Count(count.wrapping_add(1)),
            shown => shown,
        }
    }
}

impl Levels {
    ghost use Rattle.fb_wave.specs.Levels.{AreLevels};

    /// No signals.
    pub(crate) fn new(alloc: Global) -> Levels
        ensures { AreLevels 0 [] [] [] result }
    {
        Levels {
            cells: Vec::new(alloc),
            marked: Vec::new(alloc),
        }
    }

    /// The count of signals.
    pub(crate) fn count(&self) -> usize
        ensures counted { result ≡ length self.now.cells.items }
        ensures fits { result < 2 ^ 64 }
    {
        self.cells.len()
    }

    /// Adds this count of signals that no line has yet.
    pub(crate) fn add(&mut self, count: usize) -> Result<(), AllocError>
        ensures { (n : ℕ) → AreLevels n [] [] [] self.old → OnOk result (AreLevels (n + count) [] [] [] self.new) }
    {
        let mut left = count;
        while left > 0 {
            self.cells.push(Cell {
                shown: Level::Count(0),
                is_marked: false,
            })?;
            left -= 1;
        }
        Ok(())
    }

    /// Marks a signal of a line of this tick.
    fn mark(&mut self, signal: usize) -> Result<(), AllocError>
        requires { signal < length self.old.cells.items }
        ensures counted { length self.new.cells.items ≡ length self.old.cells.items }
        ensures levels { (n : ℕ) (fires : List ℕ) (sets : List (ℕ × Value)) (touches : List ℕ) → AreLevels n fires sets touches self.old
            → OnOk result (AreLevels n fires sets (touches ++ signal ∷ []) self.new) }
    {
        if self.cells[signal].is_marked {
            return Ok(());
        }
        self.marked.push(signal)?;
        self.cells[signal].is_marked = true;
        Ok(())
    }

    /// Counts an event of a port.
    pub(crate) fn fire(&mut self, signal: usize) -> Result<(), AllocError>
        requires { signal < length self.old.cells.items }
        ensures counted { length self.new.cells.items ≡ length self.old.cells.items }
        ensures levels { (n : ℕ) (fires : List ℕ) (sets : List (ℕ × Value)) (touches : List ℕ) → AreLevels n fires sets touches self.old
            → OnOk result (AreLevels n (fires ++ signal ∷ []) sets (touches ++ signal ∷ []) self.new) }
    {
        let shown = self.cells[signal].shown.after_event();
        self.cells[signal].shown = shown;
        self.mark(signal)
    }

    /// Gives a variable its last value.
    pub(crate) fn show(&mut self, signal: usize, value: Value) -> Result<(), AllocError>
        requires { signal < length self.old.cells.items }
        ensures counted { length self.new.cells.items ≡ length self.old.cells.items }
        ensures levels { (n : ℕ) (fires : List ℕ) (sets : List (ℕ × Value)) (touches : List ℕ) → AreLevels n fires sets touches self.old
            → OnOk result (AreLevels n fires (sets ++ (signal, value) ∷ []) (touches ++ signal ∷ []) self.new) }
    {
        self.cells[signal].shown = Level::Last(value);
        self.mark(signal)
    }
}
