// Bytes cut at a byte.
ghost use Rattle.scripts.specs.Lines.{Lacks};
ghost use Rattle.std.specs.Prelude.{◌≡◌, ◌∷◌, ◌++◌, MatchOption};

// What stands before the first `byte` of `text`, and what stands behind it.
pub fn split_once(text: &[u8], byte: u8) -> Option<(&[u8], &[u8])>
    ensures { MatchOption result (Lacks byte text.now) (λ p. (text.now ≡ p.0.now ++ byte ∷ p.1.now) × Lacks byte p.0.now) }
{
    let at = text.iter().position(|b| *b == byte)?;
    Some((&text[..at], &text[at + 1..]))
}
