// How far the walk that writes is: the state that goes in and comes back by value, from element to element. What each step promises stands
// in specs/Wrote.antt.
#![tactic(auto)]

ghost use Rattle.std.specs.Prelude.{◌≡◌};
ghost use Rattle.write_state.specs.Steps.{at_place, one_kept, one_replaced, one_renamed, one_removed};
ghost use Rattle.write_state.specs.Wrote.{Countable};

use treatment::Level;

// The output's next place, the ledger's slots in use, and the four counts.
#[derive(Clone, Copy)]
pub struct Progress {
    pub pos: usize,
    pub used: usize,
    pub kept: usize,
    pub replaced: usize,
    pub renamed: usize,
    pub removed: usize,
}

// Where an element stands: its level, and the least tag that may stand there.
#[derive(Clone, Copy)]
pub struct Standing {
    pub level: Level,
    pub low: u64,
}

// An element with its bytes: its tag, its VR, where its value or its items begin, and the place past them.
#[derive(Clone, Copy)]
pub struct Element {
    pub tag: u64,
    pub vr: u64,
    pub body: usize,
    pub past: usize,
}

impl Progress {
    // The output's next place is `pos`.
    pub fn at_place(self, pos: usize) -> Progress
        ensures { result ≡ at_place self pos }
    {
        Progress { pos, ..self }
    }

    // And one element more was kept.
    pub fn one_kept(self, pos: usize) -> Progress
        requires { Countable self 1 }
        ensures { result ≡ one_kept self pos }
    {
        Progress {
            pos,
            kept: self.kept + 1,
            ..self
        }
    }

    // And one element more was replaced.
    pub fn one_replaced(self, pos: usize) -> Progress
        requires { Countable self 1 }
        ensures { result ≡ one_replaced self pos }
    {
        Progress {
            pos,
            replaced: self.replaced + 1,
            ..self
        }
    }

    // And one element more was renamed; `used` slots are in use.
    pub fn one_renamed(self, pos: usize, used: usize) -> Progress
        requires { Countable self 1 }
        ensures { result ≡ one_renamed self pos used }
    {
        Progress {
            pos,
            used,
            renamed: self.renamed + 1,
            ..self
        }
    }

    // One element more was removed.
    pub fn one_removed(self) -> Progress
        requires { Countable self 1 }
        ensures { result ≡ one_removed self }
    {
        Progress {
            removed: self.removed + 1,
            ..self
        }
    }
}
