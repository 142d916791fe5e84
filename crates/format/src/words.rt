//! Words and rows of words, and the bytes of a number at a place of a slice.
ghost use Rattle.std.specs.Prelude.{◌≡◌, ◌+◌, ◌/◌, ◌≤◌, [], ◌∷◌, length, take, drop};
ghost use Rattle.std.specs.List.{slice_get};
ghost use Rattle.format.specs.Words.{numbers_in, row_at, u16_in, words_in};

/// The `N` bytes from `at` on.
pub fn bytes_at<const N: usize>(bytes: &[u8], at: usize) -> [u8; N]
    requires { at + N ≤ length bytes.now }
    ensures { result ≡ take N (drop at bytes.now) }
{
    *bytes[at..].first_chunk().unwrap()
}

/// The number that the two bytes of a word spell, the lower one first.
pub fn number_of(word: [u8; 2]) -> u16
    ensures { result ≡ u16_in word 0 }
{
    u16::from_le_bytes(word)
}

/// The number in the two bytes from `at` on.
pub fn u16_at(bytes: &[u8], at: usize) -> u16
    requires { at + 2 ≤ length bytes.now }
    ensures { result ≡ u16_in bytes.now at }
{
    number_of(bytes_at(bytes, at))
}

/// The words of a part.
#[tactic(auto, using(crate::proofs::Chunks::numbers_of_part))]
pub fn words_in(part: &[u8]) -> &[[u8; 2]]
    ensures { numbers_in result.now ≡ words_in part.now (length part.now / 2) }
{
    part.as_chunks().0
}

/// The word at this index, if there is one.
pub fn word_at(words: &[[u8; 2]], i: usize) -> Option<u16>
    ensures { result ≡ slice_get (numbers_in words.now) i }
{
    let word = words.get(i)?;
    Some(number_of(*word))
}

/// The two words of a row of four bytes.
pub fn words_of(row: [u8; 4]) -> [u16; 2]
    ensures { result ≡ u16_in row 0 ∷ u16_in row 2 ∷ [] }
{
    let [a, b, c, d] = row;
    [number_of([a, b]), number_of([c, d])]
}

/// The two words of this row of four bytes, if there is such a row.
pub fn row_at(rows: &[[u8; 4]], i: usize) -> Option<[u16; 2]>
    ensures { result ≡ row_at rows.now i }
{
    let row = rows.get(i)?;
    Some(words_of(*row))
}
