//! Laws for callers: the table is the grammar, files have one reading, uploads one answer.
ghost use Rattle.std.specs.Prelude.{◌≡◌, ℕ, List, [], Some, IsSome, ◌↔◌};
ghost use Rattle.p21_values.specs.Grammar.{Class, IsFile, IsViable, file};
ghost use Rattle.p21_reader.specs.Machine.{run};
ghost use Rattle.p21_values.specs.Lexemes.{Lexeme};
ghost use Rattle.p21_reader.specs.ExchangeFiles.{HoldsFile};
ghost use Rattle.p21_reader.specs.Schema.{Statement};
ghost use Rattle.p21_reader.specs.Uploads.{HasFault, SpellsExchange};
ghost use Rattle.bim_model.specs.declared.upload.UploadFault.{UploadFault};
ghost use Rattle.p21_values.specs.declared.value.Instance.{Instance};

/// Tokens are a file, or begin one, exactly where the reader's table leads through them.
pub fn table_is_grammar()
    ensures file { (ts : List Class) → IsFile ts ↔ (run file ts ≡ Some []) }
    ensures viable { (ts : List Class) → IsViable ts ↔ IsSome (run file ts) }
{}

/// Bytes have one reading: two readings have the same statements in the header, and the same instances.
pub fn files_have_one_reading()
    ensures statements { (bytes : List ℕ) (s t : List Statement) (a b : List Instance) → HoldsFile bytes s a
        → HoldsFile bytes t b → s ≡ t }
    ensures one { (bytes : List ℕ) (s t : List Statement) (a b : List Instance) → HoldsFile bytes s a
        → HoldsFile bytes t b → a ≡ b }
{}

/// Bytes have one answer: they spell one exchange at most, none where they have a fault, and they have one fault at most.
pub fn uploads_have_one_answer()
    ensures one { (bytes : List ℕ) (a b : List Instance) → SpellsExchange bytes a → SpellsExchange bytes b
        → a ≡ b }
    ensures refused { (bytes : List ℕ) (fault : UploadFault) (a : List Instance) → HasFault bytes fault
        → SpellsExchange bytes a → ⊥ }
    ensures fault { (bytes : List ℕ) (f g : UploadFault) → HasFault bytes f → HasFault bytes g → f ≡ g }
{}
