// The binders of one group of names, or of one pattern, inside those of others.

ghost use Rattle.std.specs.Prelude.{◌≡◌, ◌∷◌, [], OnOk, IfOk};
ghost use Rattle.pict_binders.specs.Numbered.{nearest};
ghost use Rattle.pict_scope.specs.Layers.{here, outside};

use pict_binders::{Binder, Binders};
use pict_syntax::Name;
use std::alloc::{AllocError, Global};

/// Binders, the innermost `count` of which are those of the group or pattern that is being read.
#[derive(Drop)]
pub struct Layer {
    pub binders: Binders,
    pub count: usize,
}

impl Layer {
    /// No binder. Takes no memory.
    pub fn new(alloc: Global) -> Layer
        ensures here { here result ≡ [] }
    {
        Layer {
            binders: Binders::new(alloc),
            count: 0,
        }
    }

    /// The number of the nearest binder of a name in this layer. Takes no memory.
    #[tactic(auto, using(crate::proofs::Layering::place_within, crate::proofs::Layering::place_outside, crate::proofs::Layering::place_nowhere))]
    pub fn nearest(&self, name: Name) -> Option<u32>
        ensures { result ≡ nearest (here self.now) name.0 }
    {
        match self.binders.place(name) {
            None => None,
            Some(place) => {
                if place < self.count {
                    self.binders.nearest(name)
                } else {
                    None
                }
            }
        }
    }

    /// One binder more in this layer. The only error is want of memory.
    pub fn bind(&mut self, binder: Binder) -> Result<(), AllocError>
        ensures here { OnOk result (here self.new ≡ binder ∷ here self.old) }
        ensures outside { OnOk result (outside self.new ≡ outside self.old) }
    {
        let Some(count) = self.count.checked_add(1) else {
            return Err(AllocError);
        };
        self.binders.bind(binder)?;
        self.count = count;
        Ok(())
    }

    /// Opens a layer inside, and gives the count of this one. Takes no memory.
    pub fn open(&mut self) -> usize
        ensures count { result ≡ self.old.count }
        ensures open { (self.new.count ≡ 0) × (self.new.binders ≡ self.old.binders) }
    {
        let outer = self.count;
        self.count = 0;
        outer
    }

    /// Closes this layer. The one outside it has this count. Takes no memory.
    pub fn close(&mut self, outer: usize)
        ensures { (self.new.count ≡ outer) × (self.new.binders ≡ outside self.old) }
    {
        let mut left = self.count;
        while left > 0 {
            let _ = self.binders.unbind();
            left -= 1;
        }
        self.count = outer;
    }

    /// Closes this layer, and gives its binders, the innermost first. The one outside it has this count. The only error
    /// is want of memory.
    pub fn take(&mut self, alloc: Global, outer: usize) -> Result<Vec<Binder>, AllocError>
        ensures binders { IfOk result (λ bs. bs.items ≡ here self.old) }
        ensures left { OnOk result ((self.new.count ≡ outer) × (self.new.binders ≡ outside self.old)) }
    {
        let mut taken = Vec::new(alloc);
        let mut left = self.count;
        while left > 0 {
            if let Some(binder) = self.binders.unbind() {
                taken.push(binder)?;
            }
            left -= 1;
        }
        self.count = outer;
        Ok(taken)
    }
}
