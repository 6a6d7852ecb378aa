//! Who is told the changes of a store as it is opened.

/// The answer of a reader that refuses a change.
#[derive(Clone, Copy, Debug, PartialEq, Eq)]
pub struct NotTaken;

/// Takes the changes of a store one by one, as it is opened.
pub trait ChangeReader {
    ghost use Rattle.std.specs.Prelude.{◌≡◌, ◌∷◌, [], List, Option, OnOk};
    ghost use Rattle.change_store.specs.ChangeRows.{StoredChange, change_of, taken_after};

    // The changes that it took, if it tells them.
    ghost taken: { Self → Option (List StoredChange) };

    /// Takes the next change, or refuses it.
    fn take(&mut self, turn: u64, project: u32, bytes: &[u8]) -> Result<(), NotTaken>
        ensures { OnOk result (taken self.new
            ≡ taken_after (taken self.old) (change_of turn project bytes.now ∷ [])) };
}
