// A page: a lent buffer that a text is put on, piece after piece.
ghost use Rattle.std.specs.Prelude.{ℕ, List, [], ◌∷◌};
ghost use mathlib.Core.List.{flat_map};
ghost use Rattle.blocks.specs.clauses.Images.{bytes};
ghost use Rattle.listing_text.specs.clauses.Writing.{Adds};

// The buffer, and the place up to which it is written: the buffer's length + 1 once a piece had no room, so that what follows has none.
#[derive(Drop)]
pub(crate) struct Page<'a> {
    pub(crate) out: &'a mut [u8],
    pub(crate) at: usize,
}

// What the listing has a line of.
pub(crate) trait Line {
    ghost line: { Self → List (List ℕ) };

    fn put_on(&self, page: &mut Page<'_>)
        ensures { Adds page.old page.new (line self.now) };
}

impl Page<'_> {
    pub(crate) fn put(&mut self, text: &[u8])
        ensures { Adds self.old self.new (bytes text ∷ []) }
    {
        let end = self.at.saturating_add(text.len());
        if end > self.out.len() {
            self.at = self.out.len() + 1;
            return;
        }
        self.out[self.at..end].copy_from_slice(text);
        self.at = end;
    }

    pub(crate) fn put_each<L: Line>(&mut self, items: &[L])
        ensures { Adds self.old self.new (flat_map L.line items.now) }
    {
        for item in items {
            item.put_on(self);
        }
    }
}
