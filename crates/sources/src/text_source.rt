ghost use Rattle.std.specs.Prelude.{◌≡◌, ◌≤◌, length, drop, IfErr, vec_len};
ghost use Rattle.names.specs.Spelled.{listed};
ghost use Rattle.sources.specs.Ahead.{ahead_of, Turned, Unnamed, Onward, unplaced};
ghost use Rattle.sources.specs.Texted.{text_ahead, text_place, text_lines};
ghost use Rattle.sources.specs.Texts.{place_in, made_lines};
ghost use Rattle.std.proofs.Common.{arith};
ghost use Rattle.sources.specs.Placing.{extent_of, total_lines};

use crate::fault::{LineFault, PileFault, Place};
use crate::reading::token_in;
use crate::source::Source;
use crate::text::Text;
use names::Names;
use tokens::{Category, Token};

const MOST: u64 = 65_537;

impl Text {
    // The next token of the line that is being read.
    fn read_line(
        &mut self,
        categories: &[Category; 256],
        names: &mut Names,
    ) -> Result<Option<Token>, LineFault>
        ensures turned { Turned categories.now (ahead_of categories.now (listed names.old) (text_ahead self.old)) (unplaced result) (listed names.new) (text_ahead self.new) }
        ensures unnamed { Unnamed (unplaced result) (listed names.old) (listed names.new) }
        ensures onward { Onward (unplaced result) 0 self.new.cursor.taken (vec_len self.new.line) }
        ensures placed { IfErr result (λ e. e.place ≡ text_place self.new) }
        ensures bytes { self.new.bytes ≡ self.old.bytes }
        ensures next { self.new.next ≡ self.old.next }
    {
        token_in(&self.line, &mut self.cursor, categories, names).map_err(|refusal| LineFault {
            refusal,
            place: self.here(),
        })
    }

    fn here(&self) -> Place
        ensures { result ≡ text_place self.now }
    {
        Place {
            line: self.number,
            bytes: self.cursor.taken,
        }
    }
}

impl Source for Text {
    ghost ahead = { text_ahead };

    ghost place = { text_place };

    ghost reads = { λ cs ns t u. (text_lines u ≡ text_lines t) × (text_place u ≡ place_in (text_lines t) (text_ahead u)) };

    ghost most = { 65537 };

    ghost bounded = { λ s.
        let v = s.bytes.ok.0 in
        let w = s.line.ok.0 in
        let m = s.small in
        let i = s.within in
        let t : s.cursor.taken ≤ length s.line.items = omega arith in
        omega (
          arith,
          extent_of (made_lines s.bytes.items) (made_lines (drop s.next s.bytes.items)) s.line.items s.cursor.taken s.cursor.state t s.number s.begun.0 s.begun.1 s.begun.2,
          total_lines s.bytes.items,
        ) };

    fn read(
        &mut self,
        categories: &[Category; 256],
        names: &mut Names,
    ) -> Result<Option<Token>, PileFault> {
        'lines: loop {
            if let Some(token) = self.read_line(categories, names)? {
                return Ok(Some(token));
            }
            if !self.begin_line() {
                return Ok(None);
            }
        }
    }

    fn place(&self) -> Place {
        self.here()
    }

    fn most() -> Option<u64> {
        Some(MOST)
    }
}
