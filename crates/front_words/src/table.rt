//! The version of each program.
ghost use Rattle.std.specs.Prelude.{◌≡◌};
ghost use Rattle.front_words.specs.Usage.{list_version_text, version_text};

/// The version, and the logic against which the proofs were checked.
pub const VERSION: &str = "mcg 0.3.0
logic dac8208d650f15bf
";

/// The version of the program for lists, and the logic against which the proofs were checked.
pub const LIST_VERSION: &str = "mcg6 0.3.0
logic dac8208d650f15bf
";

/// The version. Takes no memory.
#[tactic(auto, unfolding(crate::specs::Usage::version_text))]
pub fn version() -> &'static str
    ensures { result.now ≡ version_text }
{
    VERSION
}

/// The version of the program for lists. Takes no memory.
#[tactic(auto, unfolding(crate::specs::Usage::list_version_text))]
pub fn list_version() -> &'static str
    ensures { result.now ≡ list_version_text }
{
    LIST_VERSION
}
