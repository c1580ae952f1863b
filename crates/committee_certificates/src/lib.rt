//! Certificates, which are values with the members of a committee that signed them, and
//! accountability: the members that signed both of two different ones, and those that equivocated,
//! by signing two decisions for one slot.
#![tactic(auto)]

mod accountability;
mod ascent;
mod certificate;
mod certified;
mod conflicts;
mod equivocations;
mod in_place;
mod intersection;
mod quorums;
mod shared;
mod signers;
mod slots;
mod voters;
mod votes;
mod walk;

pub use accountability::{Signing, accountability_law, accountability_of};
pub use certificate::{Certificate, certificate_fault_law, read_certificate_counted};
pub use certified::{both_certified, both_certified_among, safety_of};
pub use conflicts::{ConflictError, conflict, conflict_among, conflict_among_counted};
pub use equivocations::{
    EquivocationError, equivocation, equivocation_among, equivocation_among_counted,
};
pub use in_place::{CertificateAt, SignersAt, find_certificate, find_signers};
pub use quorums::{QuorumError, check_quorum, check_quorum_among};
pub use shared::both_law;
pub use signers::{are_members, signers_of_both_counted};
pub use slots::slot_of;
pub use voters::first_new;
pub use votes::vote_law;
pub use walk::{write_both, write_both_counted};
