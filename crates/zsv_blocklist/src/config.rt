//! The settings of a list of blocked names.

use std::net::{Ipv4Addr, Ipv6Addr};
use zst_request::BlocklistConsultAction;

/// The settings of a list of blocked names.
#[derive(Clone, Debug, Drop, PartialEq, Eq)]
pub struct BlocklistConfig {
    /// Whether a wildcard among the names blocks those below it.
    pub wildcard_match: bool,
    /// Over how many labels a wildcard is looked for at least.
    pub min_wildcard_depth: u8,
    /// The address that is answered in place of a blocked host's; 0.0.0.0 where none is set.
    pub sinkhole_ipv4: Option<Ipv4Addr>,
    /// The address that is answered in place of a blocked host's IPv6 address; `::` where none is set.
    pub sinkhole_ipv6: Option<Ipv6Addr>,
    /// How long an answer may be kept, in seconds.
    pub ttl: u32,
    /// A message that goes with each answer, of at most 255 octets.
    pub block_message: Option<String>,
    /// What is done where another handler has answered.
    pub consult_action: BlocklistConsultAction,
    /// Whether a log is to name the clients whose questions are blocked. It has no effect: there is no log.
    pub log_clients: bool,
}

impl Default for BlocklistConfig {
    ghost use Rattle.std.specs.Prelude.{◌≡◌};
    ghost use Rattle.zsv_blocklist.specs.Configs.{default_config};

    ghost is_default = { λ config. config ≡ default_config };

    /// Wildcards over two labels and more block, all zeros are answered for a day, without a message, and other handlers'
    /// answers stay.
    fn default() -> BlocklistConfig {
        BlocklistConfig {
            wildcard_match: true,
            min_wildcard_depth: 2,
            sinkhole_ipv4: None,
            sinkhole_ipv6: None,
            ttl: 86_400,
            block_message: None,
            consult_action: BlocklistConsultAction::Disabled,
            log_clients: true,
        }
    }
}
