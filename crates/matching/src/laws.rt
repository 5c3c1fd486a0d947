ghost use Rattle.std.specs.Prelude.{◌≡◌, Bool, List, Decides};
ghost use Rattle.tokens.specs.declared.stored.ParameterWord.{ParameterWord};
ghost use Rattle.tokens.specs.declared.token.Token.{Token};
ghost use Rattle.matching.specs.Braces.{same_token};
ghost use Rattle.matching.specs.Dividing.{Parameters};
ghost use Rattle.matching.specs.Laws.{Lawful, Laws, TextLaws};
ghost use Rattle.matching.specs.Worked.{WorkedCases};

/// The laws of dividing tokens into arguments stand, and so do the worked cases; tells how many cases there are.
pub fn division_laws_stand() -> u8
    ensures laws { (p : Parameters) (long : Bool) → Lawful p → Laws p long }
    ensures texts { (text : List ParameterWord) → TextLaws text }
    ensures tokens { (t u : Token) → Decides (same_token t u) (t ≡ u) }
    ensures cases { WorkedCases }
    ensures count { result ≡ 22 }
{
    22
}
