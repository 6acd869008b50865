// A number in its shortest form.
ghost use Rattle.std.specs.Prelude.{◌≡◌, ◌<◌, length, [], ◌∷◌};
ghost use Rattle.listing_text.specs.Text.{glyph as Text·glyph, digits, places as Text·places, numeral};
ghost use Rattle.listing_text.specs.clauses.Writing.{Base, Adds};

use crate::page::Page;

fn glyph(value: u64) -> u8
    requires { value < 16 }
    ensures { result ≡ Text·glyph value }
{
    b"0123456789abcdef"[value as usize]
}

// How many digits a number has; 0 has one as 1 has.
fn places(base: u64, figure: u64) -> usize
    requires { Base base }
    ensures { result ≡ Text·places base figure }
{
    figure.max(1).ilog(base) as usize + 1
}

// The last digits of a number, as many as there is room for, from the lowest place up.
fn put_digits(out: &mut [u8], base: u64, figure: u64)
    requires { Base base }
    ensures { out.new ≡ digits base (length out.old) figure }
{
    let mut rest = figure;
    for i in (0..out.len()).rev() {
        out[i] = glyph(rest % base);
        rest /= base;
    }
}

impl Page<'_> {
    // Counted first: without room no byte may change. No array holds the digits in between.
    pub(crate) fn put_numeral(&mut self, base: u64, figure: u64)
        requires { Base base }
        ensures { Adds self.old self.new (numeral base figure ∷ []) }
    {
        let end = self.at.saturating_add(places(base, figure));
        if end > self.out.len() {
            self.at = self.out.len() + 1;
            return;
        }
        put_digits(&mut self.out[self.at..end], base, figure);
        self.at = end;
    }
}
