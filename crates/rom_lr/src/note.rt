//! What one caller hands another, so that it sees as much.
ghost use Rattle.std.specs.Prelude.{◌≡◌, [], None};
ghost use Rattle.rom_rule.specs.Kinds.{IsIdleView};

use rom_rule::Token;

/// What one caller had seen of the published history. A thread may take it along.
#[derive(Drop)]
pub struct Note {
    pub token: Token,
    ghost bare: { token.me.1 ≡ [] },
    ghost idle: { IsIdleView token.me.0 },
    ghost plain: { token.me.0.plan ≡ None },
}
