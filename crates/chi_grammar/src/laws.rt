ghost use Rattle.std.specs.Prelude.{◌≡◌, ◌≤◌, ◌⊎◌, ℕ, List, ◌++◌, true, Result, Err};
ghost use Rattle.chi_grammar.specs.declared.fault.ParseFault.{ParseFault};
ghost use Rattle.chi_grammar.specs.declared.fault.ParseFault.TheVariants.{NoMemory};
ghost use Rattle.chi_grammar.specs.declared.room.Room.{Room};
ghost use Rattle.chi_grammar.specs.Rules.{Grammar, Rule, Tree, spelling};
ghost use Rattle.chi_grammar.specs.Trees.{Is};
ghost use Rattle.chi_grammar.specs.Fronts.{Front};
ghost use Rattle.chi_grammar.specs.Exact.{Parses, ParsesAll};
ghost use Rattle.chi_grammar.specs.Lookahead.{Table};
ghost use Rattle.chi_grammar.specs.Fine.{Fine, is_decided};

/// In a grammar that one token decides, no two trees that a rule builds have the same tokens.
pub fn one_tree_law<A, S>()
    ensures { (g : Grammar A S) (table : Table S) → Fine g table
        → (r : Rule A S) → is_decided table r ≡ true
        → (room other : Room) (t u : Tree A S)
        → Is g room r t → Is g other r u → spelling t ≡ spelling u → t ≡ u }
{}

/// The tokens of a tree are a front of the rule that builds it, and each prefix of a front is one.
pub fn front_law<A, S>()
    ensures of_a_tree { (g : Grammar A S) (room : Room) (r : Rule A S) (t : Tree A S)
        → Is g room r t → Front g room r (spelling t) }
    ensures of_a_front { (g : Grammar A S) (room : Room) (r : Rule A S) (f rest : List A)
        → Front g room r (f ++ rest) → Front g room r f }
{}

/// What stands within a room stands within a larger one.
pub fn room_law<A, S>()
    ensures trees { (g : Grammar A S) (room larger : Room) (r : Rule A S) (t : Tree A S)
        → room.blocks ≤ larger.blocks → room.expressions ≤ larger.expressions → Is g room r t → Is g larger r t }
    ensures fronts { (g : Grammar A S) (room larger : Room) (r : Rule A S) (f : List A)
        → room.blocks ≤ larger.blocks → room.expressions ≤ larger.expressions → Front g room r f → Front g larger r f }
{}

/// In a grammar that one token decides, the tokens leave a parser one exact answer, or want of memory.
pub fn one_answer_law<A, S, T>()
    ensures { (g : Grammar A S) (table : Table S) → Fine g table
        → (r : Rule A S) → is_decided table r ≡ true
        → (view : Tree A S → T) (tokens : List A) (room : Room) (at : ℕ) (result other : Result (T × ℕ) ParseFault)
        → Parses g tokens view room r at result → Parses g tokens view room r at other
        → (result ≡ Err NoMemory) ⊎ ((other ≡ Err NoMemory) ⊎ (result ≡ other)) }
{}

/// In a grammar that one token decides, the same holds of an answer for all the tokens, and there is one.
pub fn whole_answer_law<A, S, T>()
    ensures some { (g : Grammar A S) (table : Table S) → Fine g table
        → (r : Rule A S) → is_decided table r ≡ true
        → (view : Tree A S → T) (tokens : List A) (room : Room)
        → (result : Result T ParseFault) × (result ≡ Err NoMemory → ⊥) × ParsesAll g tokens view room r result }
    ensures one { (g : Grammar A S) (table : Table S) → Fine g table
        → (r : Rule A S) → is_decided table r ≡ true
        → (view : Tree A S → T) (tokens : List A) (room : Room) (result other : Result T ParseFault)
        → ParsesAll g tokens view room r result → ParsesAll g tokens view room r other
        → (result ≡ Err NoMemory) ⊎ ((other ≡ Err NoMemory) ⊎ (result ≡ other)) }
{}
