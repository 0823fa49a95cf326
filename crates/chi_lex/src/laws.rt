ghost use Rattle.std.specs.Prelude.{◌≡◌, ◌⊎◌, ℕ, List, [], ◌∷◌};
ghost use Rattle.chi_lex.specs.declared.fault.LexFault.{LexFault};
ghost use Rattle.chi_token.specs.declared.place.Spanned.{Spanned};
ghost use Rattle.chi_token.specs.declared.token.Token.{Token};
ghost use Rattle.chi_token.specs.Spelling.{canonical_spelling};
ghost use Rattle.chi_token.specs.Tokens.{IsToken};
ghost use Rattle.chi_lex.specs.Reading.{Reads, HasFault};
ghost use Rattle.chi_lex.specs.Spans.{SpanFrom, alone};

/// A law of every token that some bytes spell: its canonical spelling is read as that token alone.
pub fn spelling_law()
    ensures { (token : Token) → IsToken token → Reads (canonical_spelling token) (alone token ∷ []) }
{}

/// A law of every source that is read: its tokens lie in it one after another, and the bytes of
/// each spell it.
pub fn span_law()
    ensures { (source : List ℕ) (tokens : List Spanned) → Reads source tokens → SpanFrom source 0 tokens }
{}

/// A law of every source: it has its tokens or its first fault, never both, and one of these alone.
pub fn one_reading_law()
    ensures some { (source : List ℕ) → ((tokens : List Spanned) × Reads source tokens) ⊎ ((fault : LexFault) × HasFault source fault) }
    ensures one_list { (source : List ℕ) (tokens others : List Spanned) → Reads source tokens → Reads source others → tokens ≡ others }
    ensures one_fault { (source : List ℕ) (fault other : LexFault) → HasFault source fault → HasFault source other → fault ≡ other }
    ensures never_both { (source : List ℕ) (tokens : List Spanned) (fault : LexFault) → Reads source tokens → HasFault source fault → ⊥ }
{}
