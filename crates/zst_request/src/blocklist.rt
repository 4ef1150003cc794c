//! What a list of blocked names does with other handlers' answers.
ghost use Rattle.std.specs.Prelude.{◌≡◌};

/// What a list of blocked names does where another handler of its chain has answered.
#[derive(Clone, Copy, Debug, PartialEq, Eq)]
pub enum BlocklistConsultAction {
    /// Nothing.
    Disabled,
    /// Its answer replaces the other's, where it blocks the name.
    Enforce,
    /// Nothing, and a log is told of it.
    Log,
}

impl Default for BlocklistConsultAction {
    ghost use Rattle.zst_request.specs.declared.blocklist.BlocklistConsultAction.TheVariants.{Disabled};

    ghost is_default = { λ action. action ≡ Disabled };

    /// It does nothing.
    fn default() -> BlocklistConsultAction {
        BlocklistConsultAction::Disabled
    }
}
