ghost use Rattle.std.specs.Prelude.{◌≡◌, ℕ, List};
ghost use Rattle.trace_lines.specs.TextLines.{Test, TextLine, IsRightText, IsRefusedAt};
ghost use Rattle.trace_lines.specs.declared.refused.TraceKind.{TraceKind as KindValue};

/// Whatever the grammar, a text is right or is refused, and not both. The lines of a right text are told once, and one that
/// is refused is refused at one line for one reason. A call here does nothing: its contract is the law.
pub fn one_verdict()
    ensures right { (test : Test) (bytes : List ℕ) (spoke : List TextLine) (line : ℕ) (kind : KindValue)
        → IsRightText test bytes spoke → IsRefusedAt test bytes line kind → ⊥ }
    ensures told { (test : Test) (bytes : List ℕ) (spoke other : List TextLine)
        → IsRightText test bytes spoke → IsRightText test bytes other → spoke ≡ other }
    ensures line { (test : Test) (bytes : List ℕ) (line other : ℕ) (kind why : KindValue)
        → IsRefusedAt test bytes line kind → IsRefusedAt test bytes other why → line ≡ other }
    ensures kind { (test : Test) (bytes : List ℕ) (line other : ℕ) (kind why : KindValue)
        → IsRefusedAt test bytes line kind → IsRefusedAt test bytes other why → kind ≡ why }
{}
