//! Texts, identifiers, moments and who made a change.
ghost use Rattle.std.specs.Prelude.{◌≡◌, length, true, false, MatchOption};
ghost use Rattle.std.specs.List.{list_all};
ghost use Rattle.std.specs.Str.{is_utf8};
ghost use Rattle.bim_model.specs.Guids.{is_guid_char};
ghost use Rattle.feed_frames.specs.FieldBytes.{text_bytes, long_bytes};
ghost use Rattle.feed_frames.specs.EntryBytes.{guid_bytes, author_bytes};
ghost use Rattle.feed_frames.specs.inner.FieldReaders.{text_at};
ghost use Rattle.feed_frames.specs.inner.EntryReaders.{guid_at, moment_at, author_at};

use crate::field::Field;
use crate::read_error::ReadError;
use crate::unread::Unread;
use bim_model::{Author, Guid, Moment, Text};
use std::alloc::{AllocError, Global};

// The text that bytes are, if they are UTF-8.
fn text_of(bytes: &[u8]) -> Option<&str>
    ensures { MatchOption result (is_utf8 bytes.now ≡ false)
        (λ text. (text.now ≡ bytes.now) × (is_utf8 bytes.now ≡ true)) }
{
    match str::from_utf8(bytes) {
        Ok(text) => Some(text),
        Err(_) => None,
    }
}

impl Field for Text {
    ghost spelling = { text_bytes };

    ghost reading = { text_at };

    #[tactic(auto, unfolding(crate::specs::FieldBytes::text_bytes))]
    fn write_to(&self, out: &mut Vec<u8>) -> Result<(), AllocError> {
        let bytes = self.as_str().as_bytes();
        let count = bytes.len() as u64;
        count.write_to(out)?;
        out.extend_from_slice(bytes)
    }

    #[tactic(auto, unfolding(crate::specs::inner::FieldReaders::text_at))]
    fn read_from(alloc: Global, unread: &mut Unread) -> Result<Text, ReadError> {
        let count = unread.long()?;
        let bytes = unread.cut(count)?;
        match text_of(bytes) {
            Some(text) => {
                let text = Text::of(alloc, text)?;
                Ok(text)
            }
            None => Err(ReadError::NotSpelled),
        }
    }
}

// The identifier that 22 bytes are, if they are characters of its alphabet.
fn guid_of(chars: &[u8]) -> Option<Guid>
    requires { length chars.now ≡ 22 }
    ensures { MatchOption result (list_all is_guid_char chars.now ≡ false)
        (λ guid. (guid.chars ≡ chars.now) × (list_all is_guid_char chars.now ≡ true)) }
{
    match Guid::read(chars) {
        Some(guid) => Some(guid),
        None => None,
    }
}

impl Field for Guid {
    ghost spelling = { guid_bytes };

    ghost reading = { guid_at };

    #[tactic(auto, unfolding(crate::specs::EntryBytes::guid_bytes))]
    fn write_to(&self, out: &mut Vec<u8>) -> Result<(), AllocError> {
        out.extend_from_slice(&self.chars)
    }

    #[tactic(auto, unfolding(crate::specs::inner::EntryReaders::guid_at))]
    fn read_from(_: Global, unread: &mut Unread) -> Result<Guid, ReadError> {
        let chars = unread.cut(22)?;
        match guid_of(chars) {
            Some(guid) => Ok(guid),
            None => Err(ReadError::NotSpelled),
        }
    }
}

impl Field for Moment {
    ghost spelling = { long_bytes };

    ghost reading = { moment_at };

    fn write_to(&self, out: &mut Vec<u8>) -> Result<(), AllocError> {
        let seconds = self.seconds();
        seconds.write_to(out)
    }

    #[tactic(auto, unfolding(crate::specs::inner::EntryReaders::moment_at))]
    fn read_from(_: Global, unread: &mut Unread) -> Result<Moment, ReadError> {
        let seconds = unread.long()?;
        if seconds > Moment::LAST {
            return Err(ReadError::NotSpelled);
        }
        Ok(Moment::new(seconds))
    }
}

impl Field for Author {
    ghost spelling = { author_bytes };

    ghost reading = { author_at };

    #[tactic(auto, unfolding(crate::specs::EntryBytes::author_bytes))]
    fn write_to(&self, out: &mut Vec<u8>) -> Result<(), AllocError> {
        self.user.write_to(out)?;
        self.moment.write_to(out)
    }

    #[tactic(auto, unfolding(crate::specs::inner::EntryReaders::author_at))]
    fn read_from(alloc: Global, unread: &mut Unread) -> Result<Author, ReadError> {
        let user = Text::read_from(alloc, unread)?;
        let moment = Moment::read_from(alloc, unread)?;
        Ok(Author { user, moment })
    }
}
