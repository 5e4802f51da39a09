// What a walk through a type has made of its parts, so that like parts are made once.

use crate::prints::{Fingerprint, Print, mixed, print_type};
use crate::types::Ty;
use std::alloc::{AllocError, Global};

/// How many parts a type has at least for what is made of them to be kept.
const LEAST_PARTS: usize = 16;

/// What a walk through a type has made of its parts. Nothing is promised of it: whoever takes of it compares.
#[derive(Drop)]
pub struct Parts {
    /// The parts of the type, each before those in it.
    prints: Vec<Fingerprint>,
    /// The place of the part that the walk comes to next.
    next: usize,
    /// What was made of parts, with their numbers, each where its number says; `Top` where nothing was.
    made: Vec<(u64, Ty)>,
}

impl Parts {
    /// Those of a type that a walk begins with. The only error is want of memory.
    pub fn of(alloc: Global, t: &Ty) -> Result<Parts, AllocError> {
        let mut prints = Vec::new(alloc);
        let _ = print_type(t, &mut prints)?;
        let made = Parts::nothing_made(alloc, prints.len())?;
        Ok(Parts {
            prints,
            next: 0,
            made,
        })
    }

    /// Room for what is made of so many parts.
    fn nothing_made(alloc: Global, parts: usize) -> Result<Vec<(u64, Ty)>, AllocError> {
        let mut made = Vec::new(alloc);
        if parts < LEAST_PARTS {
            return Ok(made);
        }
        for _ in 0..parts {
            made.push((0, Ty::Top))?;
        }
        Ok(made)
    }

    /// The part that the walk comes to, under so many binders. The parts in it come next.
    pub fn enter(&mut self, under: usize) -> Fingerprint {
        let Some(part) = self.prints.get(self.next).copied() else {
            return Fingerprint {
                print: Print {
                    number: 0,
                    reach: 0,
                },
                parts: 1,
            };
        };
        self.next = self.next.saturating_add(1);
        let Print { number, reach } = part.print;
        Fingerprint {
            print: Print {
                number: mixed(number, under as u64),
                reach,
            },
            parts: part.parts,
        }
    }

    /// Leaves out the parts in one that was entered last.
    pub fn pass(&mut self, part: Fingerprint) {
        self.next = self.next.saturating_add(part.parts.saturating_sub(1));
    }

    fn place(&self, part: Fingerprint) -> usize {
        if self.made.is_empty() {
            return 0;
        }
        (part.print.number % self.made.len() as u64) as usize
    }

    /// What was made of a part that is perhaps like this one.
    pub fn made_of(&self, part: Fingerprint) -> Option<&Ty> {
        let kept = self.made.get(self.place(part))?;
        if kept.0 != part.print.number {
            return None;
        }
        Some(&kept.1)
    }

    /// Keeps what was made of a part, if anything was.
    pub fn keep(
        &mut self,
        alloc: Global,
        part: Fingerprint,
        made: &Option<Ty>,
    ) -> Result<(), AllocError> {
        let Some(made) = made else { return Ok(()) };
        let place = self.place(part);
        if let Some(it) = self.made.get_mut(place) {
            *it = (part.print.number, made.copy(alloc)?);
        }
        Ok(())
    }
}
