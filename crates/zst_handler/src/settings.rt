//! How a zone is made.

use zst_edns::{AxfrPolicy, NxProofKind, ZoneType};

/// How a zone is made: what this server is to it, who may transfer it, how it proves that a name is absent.
#[derive(Drop)]
pub struct ZoneSettings {
    /// What this server is to the zone.
    pub zone_type: ZoneType,
    /// Who may transfer the zone.
    pub axfr_policy: AxfrPolicy,
    /// How the zone proves that a name is absent, if it does.
    pub nx_proof_kind: Option<NxProofKind>,
}
