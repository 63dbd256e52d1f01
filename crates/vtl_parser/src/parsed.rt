// Scripts as the parser gives them.
ghost use Rattle.std.specs.Prelude.{◌≡◌};

use std::marker::Model;
use vtl_syntax::Script;

/// A script that is read from tokens that texts have. So its names and literals are those of the language, and its levels,
/// and how many there are of what has a limit, are within the limits of the language. Contracts see it as the script.
#[derive(Drop)]
pub struct ParsedScript {
    script: Script,
}

impl Model for ParsedScript {
    ghost use Rattle.vtl_syntax.specs.declared.script.Script.{Script};
    ghost use Rattle.vtl_parser.specs.OfText.{script_coded, IsOfText};

    ghost Value = { Script };

    ghost coded = { script_coded };

    ghost view = { λ p. p.script };

    ghost invariant = { λ p. IsOfText p.script };
}

impl ParsedScript {
    ghost use Rattle.vtl_parser.specs.OfText.{IsOfText};
    ghost use Rattle.vtl_parser.specs.Scripts.{HasRoom};

    pub(crate) fn of(script: Script) -> ParsedScript
        requires { IsOfText script }
        ensures { result ≡ script }
    {
        ParsedScript { script }
    }

    /// The script, which is within the limits.
    pub fn script(&self) -> &Script
        ensures value { result.now ≡ self.now }
        ensures of_text { IsOfText self.now }
        ensures few { HasRoom self.now }
    {
        &self.script
    }

    /// The script by itself, which is within the limits.
    pub fn into_script(self) -> Script
        ensures value { result ≡ self }
        ensures of_text { IsOfText self }
        ensures few { HasRoom self }
    {
        self.script
    }
}
