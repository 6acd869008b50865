// A line by its format, in which # stands for a figure in decimal, @ for one in hexadecimal, and $ for a kind's name.
ghost use Rattle.std.specs.Prelude.{◌≡◌, [], ◌∷◌};
ghost use Rattle.blocks.specs.clauses.Images.{bytes};
ghost use Rattle.listing_text.specs.Lines.{piece, taken, filled};
ghost use Rattle.listing_text.specs.clauses.Writing.{Adds};

use crate::names::kind_name;
use crate::page::Page;

const DECIMAL: u64 = 10;

const HEXADECIMAL: u64 = 16;

impl Page<'_> {
    // A byte of a format, where the next figure is this one; how many figures the byte takes.
    fn put_piece(&mut self, c: u8, figure: u64) -> usize
        ensures piece { Adds self.old self.new (piece c figure ∷ []) }
        ensures taken { result ≡ taken c }
    {
        match c {
            b'#' => self.put_numeral(DECIMAL, figure),
            b'@' => self.put_numeral(HEXADECIMAL, figure),
            b'$' => self.put(kind_name(figure)),
            _ => {
                self.put(&[c]);
                return 0;
            }
        }
        1
    }

    pub(crate) fn put_line(&mut self, format: &[u8], figures: &[u64])
        ensures { Adds self.old self.new (filled (bytes format) figures.now) }
    {
        let mut next = 0;
        for &c in format {
            let figure = figures.get(next).copied().unwrap_or(0);
            next += self.put_piece(c, figure);
        }
    }
}
