//! What reads a text line by line.
ghost use Rattle.std.specs.Prelude.{ℕ, ◌≤◌, ◌↔◌, List, [], ◌∷◌, length, IsTrue};

/// The most bytes of a line, without its line feed. No accepted text has a longer one.
pub const MOST_LINE: usize = 39_999;

/// Reads a text line by line, without the line feeds.
pub trait LineMachine {
    /// The lines are what it still waits for.
    ghost waits: { Self → List (List ℕ) → Type 0 };

    /// Takes the next line.
    fn take(&mut self, line: &[u8])
        requires { length line.now ≤ MOST_LINE }
        ensures { (ls : List (List ℕ)) → waits self.new ls ↔ waits self.old (line.now ∷ ls) };

    /// Waits for nothing from now on.
    fn refuse(&mut self)
        ensures { (ls : List (List ℕ)) → ¬ waits self.new ls };

    /// Whether everything has come.
    fn is_at_end(&self) -> bool
        ensures { IsTrue result ↔ waits self.now [] };
}
