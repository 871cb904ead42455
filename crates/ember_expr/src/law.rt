// The laws of the grammar: what is parsed is what the grammar derives, it derives one tree, and a
// fault is at the first token where the grammar doesn't go on or that is over a limit.
ghost use Rattle.std.specs.Prelude.{◌≡◌, ◌≢◌, ℕ, List, Ok, Err};
ghost use Rattle.ember_expr.specs.declared.fault.ExprFault.{ExprFault};
ghost use Rattle.ember_expr.specs.declared.fault.ExprFault.TheVariants.{Syntax};
ghost use Rattle.ember_expr.specs.declared.token.Word.{Word};
ghost use Rattle.ember_expr.specs.Formula.{Formula};
ghost use Rattle.ember_expr.specs.Grammar.{expr_of};
ghost use Rattle.ember_expr.specs.Derivation.{Phrase, Derives, IsExpression, HasTree, words_of};
ghost use Rattle.ember_expr.specs.FirstBadToken.{IsFirstBadToken};
ghost use Rattle.ember_expr.specs.FirstFault.{HasFault};

/// A text is parsed as a tree exactly if it is within the limits and the grammar derives its
/// words as this tree. A text whose words the grammar derives has no syntax fault, within the
/// limits or not. The words of a phrase have one tree.
pub fn texts_have_the_tree_of_the_grammar()
    ensures derived { (text : List ℕ) (meshes : ℕ) (f : Formula) → expr_of text meshes ≡ Ok f → HasTree text meshes f }
    ensures parsed { (text : List ℕ) (meshes : ℕ) (f : Formula) → HasTree text meshes f → expr_of text meshes ≡ Ok f }
    ensures clean { (t : List ℕ) (n p : ℕ) (f : Formula) → IsExpression (words_of t) f → expr_of t n ≢ Err (Syntax p) }
    ensures one { (p : Phrase) (ws : List Word) (f g : Formula) → Derives p ws f → Derives p ws g → f ≡ g }
{}

/// A fault of syntax is at the first token that no text of the grammar has after the tokens
/// before it. A text that begins one of the grammar and is none has it at its end. A text has at
/// most one such place.
pub fn syntax_faults_stand_at_the_first_bad_token()
    ensures first { (t : List ℕ) (n p : ℕ) → expr_of t n ≡ Err (Syntax p) → IsFirstBadToken t p }
    ensures one { (t : List ℕ) (p q : ℕ) → IsFirstBadToken t p → IsFirstBadToken t q → p ≡ q }
{}

/// A text of at most 4096 bytes has its fault at the first token that no text of the grammar has
/// after the tokens before it, or that the grammar allows but a limit doesn't: its number is above
/// 1,000,000, there is no mesh of this number, or it is a `(` or `!` inside 64 others. No token
/// before it has any fault. A text with such a token has this fault, and no other.
pub fn faults_stand_at_the_first_token_that_has_one()
    ensures first { (t : List ℕ) (n : ℕ) (e : ExprFault) → expr_of t n ≡ Err e → HasFault t n e }
    ensures given { (t : List ℕ) (n : ℕ) (e : ExprFault) → HasFault t n e → expr_of t n ≡ Err e }
{}
