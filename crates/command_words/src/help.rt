//! The help of each command.
ghost use Rattle.std.specs.Prelude.{◌≡◌};
ghost use Rattle.command_words.specs.Help.{text_of_help};

use crate::{log_help, node_help, plan_help, types_help, values_help};

/// Which help a command has. The table has no texts of this length itself, so that a look into it
/// costs a proof as little as its words do.
#[derive(Clone, Copy, Debug, PartialEq, Eq)]
pub enum Help {
    /// Of `run`.
    Run,
    /// Of `json`.
    Json,
    /// Of `explain`.
    Explain,
    /// Of `survey`.
    Survey,
    /// Of `nodes`.
    Nodes,
    /// Of `order`.
    Order,
    /// Of `gen`.
    Gen,
    /// Of `monitor`.
    Monitor,
    /// Of `allocate`.
    Allocate,
    /// Of `fetch`.
    Fetch,
    /// Of `bound`.
    Bound,
    /// Of `migrate`.
    Migrate,
    /// Of `compile`.
    Compile,
    /// Of `compat`.
    Compat,
    /// Of `versions`.
    Versions,
    /// Of `changes`.
    Changes,
    /// Of `encode`.
    Encode,
    /// Of `decode`.
    Decode,
}

impl Help {
    /// What `cyphal COMMAND --help` writes.
    pub fn text(self) -> &'static str
        ensures { result.now ≡ text_of_help self }
    {
        match self {
            Help::Run => log_help::RUN,
            Help::Json => log_help::JSON,
            Help::Explain => log_help::EXPLAIN,
            Help::Survey => log_help::SURVEY,
            Help::Nodes => log_help::NODES,
            Help::Order => log_help::ORDER,
            Help::Gen => log_help::GEN,
            Help::Monitor => node_help::MONITOR,
            Help::Allocate => node_help::ALLOCATE,
            Help::Fetch => node_help::FETCH,
            Help::Bound => plan_help::BOUND,
            Help::Migrate => plan_help::MIGRATE,
            Help::Compile => types_help::COMPILE,
            Help::Compat => types_help::COMPAT,
            Help::Versions => types_help::VERSIONS,
            Help::Changes => types_help::CHANGES,
            Help::Encode => values_help::ENCODE,
            Help::Decode => values_help::DECODE,
        }
    }
}
