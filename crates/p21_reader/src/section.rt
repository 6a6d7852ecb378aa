//! The data section: instances until the word that closes it.
ghost use Rattle.std.specs.Prelude.{◌≡◌, ◌≤◌, length, IfOk};
ghost use Rattle.p21_values.specs.TokenPieces.{IsPiece};
ghost use Rattle.p21_reader.specs.ExchangeFiles.{ReadsClosing};

use crate::word::{Mark, Seen, expect, expect_word, look};
use p21_values::{Kind, Piece, ReadFault, refused};

/// Reads the end of a file, from its word ENDSEC on.
pub fn closing(bytes: &[u8], word: Piece) -> Result<usize, ReadFault>
    requires piece { IsPiece bytes.now word }
    requires word { word.kind ≡ Kind.Word }
    ensures closing { ReadsClosing bytes.now word.token result }
    ensures within { IfOk result (λ end. end ≤ length bytes.now) }
{
    match look(bytes, word) {
        Seen::Word(Mark::EndSec) => {}
        _ => return Err(refused(word)),
    }
    let semicolon = expect(bytes, word.token.end, Kind::Semicolon)?;
    let last = expect_word(bytes, semicolon, Mark::EndIso)?;
    expect(bytes, last, Kind::Semicolon)
}
