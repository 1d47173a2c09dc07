// How often each outcome occurred, and its print.
use std::io;

// What an entry came to that is as told: no Result, as a refusal that is told is as good as an answer.
#[derive(Clone, Copy)]
pub(crate) enum Came {
    Accepted,
    // with its number
    Refused(u32),
    CutPair,
    UnderDefault,
}

// A run refuses with the numbers from 1 on, below this one.
const NUMBERS: usize = 46;

#[derive(Clone, Copy, Default)]
pub(crate) struct Counts {
    accepted: u64,
    // by number
    refused: [u64; NUMBERS],
    cut_pairs: u64,
    under_default: u64,
    different: u64,
}

impl Counts {
    // Counts an entry: None is one that is not as told.
    pub(crate) fn count(&mut self, came: Option<Came>) {
        match came {
            Some(Came::Accepted) => add_one(&mut self.accepted),
            Some(Came::Refused(number)) => {
                if let Some(n) = self.refused.get_mut(number as usize) {
                    add_one(n);
                }
            }
            Some(Came::CutPair) => add_one(&mut self.cut_pairs),
            Some(Came::UnderDefault) => add_one(&mut self.under_default),
            None => add_one(&mut self.different),
        }
    }

    pub(crate) fn print(&self, rt: &impl Print) -> io::Result<()> {
        print_count(rt, "accepted", self.accepted)?;
        for (number, n) in self.refused.iter().enumerate() {
            if *n != 0 {
                println!(rt; "refused {number}: {n}")?;
            }
        }
        print_count(rt, "cut pairs equal", self.cut_pairs)?;
        print_count(rt, "under a default equal", self.under_default)?;
        print_count(rt, "different", self.different)
    }
}

// A count stops here: as many as the turns of one file.
const MOST: u64 = 1_000_000;

fn add_one(n: &mut u64) {
    *n = n.saturating_add(1).min(MOST);
}

fn print_count(rt: &impl Print, words: &str, n: u64) -> io::Result<()> {
    println!(rt; "{words}: {n}")
}
