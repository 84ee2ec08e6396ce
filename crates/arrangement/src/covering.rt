ghost use Rattle.std.specs.Prelude.{◌≡◌, ◌↔◌, ℕ, IsTrue, OnOk, IsSomeAnd};
ghost use Rattle.std.specs.BTreeMap.{get};
ghost use Rattle.arrangement.specs.Covers.{Adds, piece_order};
ghost use Rattle.arrangement.specs.Letters.{has};

use crate::covers::{Cover, Covers};
use crate::letters::Letters;
use fold_base::Letter;
use std::alloc::AllocError;

/// What covers a piece after one segment more, with this letter and these ends.
fn joined(known: Option<Cover>, ends: (u32, u32), letter: Letter) -> Cover
    ensures { Adds letter ends known result }
{
    match known {
        Some(cover) => Cover {
            letters: cover.letters.with(letter),
            line: cover.line,
        },
        None => Cover {
            letters: Letters::only(letter),
            line: ends,
        },
    }
}

/// Whether a letter is known of a piece.
fn is_known(known: Option<Cover>, letter: Letter) -> bool
    ensures { IsTrue result ↔ IsSomeAnd known (λ c. IsTrue (has c.letters letter)) }
{
    match known {
        Some(cover) => cover.letters.has(letter),
        None => false,
    }
}

/// Notes that a segment with these ends covers a piece.
pub fn cover_piece(
    covers: &mut Covers,
    piece: (u32, u32),
    ends: (u32, u32),
    letter: Letter,
) -> Result<(), AllocError>
    ensures here { OnOk result (IsSomeAnd (get piece_order covers.new piece) (Adds letter ends (get piece_order covers.old piece))) }
    ensures others { OnOk result ((q : ℕ × ℕ) → ¬ (q ≡ piece) → get piece_order covers.new q ≡ get piece_order covers.old q) }
{
    let known = covers.get(&piece).copied();
    if is_known(known, letter) {
        return Ok(());
    }
    covers.insert(piece, joined(known, ends, letter))?;
    Ok(())
}
