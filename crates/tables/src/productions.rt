//! The productions: two words for each.
ghost use Rattle.std.specs.Prelude.{◌≡◌, ◌*◌, length, is_some, not, position};
ghost use Rattle.format.specs.Words.{u16_in};
ghost use Rattle.format.specs.Refusals.{refusal_in};
ghost use Rattle.tables.specs.Productions.{production_of, productions_refusal};

use format::{Counts, Refusal, words_of};

/// A production: the nonterminal on its left side, and how many symbols stand on its right side.
#[derive(Clone, Copy, Debug, PartialEq, Eq)]
pub struct Production {
    pub left: u16,
    pub length: u16,
}

/// What the two words say, where there are so many nonterminals, or `None` where they are not allowed.
pub fn production_of(left: u16, length: u16, nonterminals: usize) -> Option<Production>
    ensures { result ≡ production_of nonterminals left length }
{
    if usize::from(left) >= nonterminals || length > 16 {
        return None;
    }
    Some(Production { left, length })
}

/// The index of the first production that is not allowed.
fn first_wrong(rows: &[[u8; 4]], nonterminals: usize) -> Option<usize>
    ensures { result ≡ position (λ row. not (is_some (production_of nonterminals (u16_in row 0) (u16_in row 2)))) rows.now }
{
    rows.iter().position(|row| {
        let [left, length] = words_of(*row);
        production_of(left, length, nonterminals).is_none()
    })
}

/// Whether each production is allowed.
pub fn check_productions(part: &[u8], counts: &Counts) -> Result<(), Refusal>
    requires { length part.now ≡ counts.now.productions * 4 }
    ensures { refusal_in result ≡ productions_refusal part.now counts.now.nonterminals counts.now.productions }
{
    let (rows, _) = part.as_chunks();
    first_wrong(rows, counts.nonterminals).map_or(Ok(()), |i| Err(Refusal::Production(i)))
}
