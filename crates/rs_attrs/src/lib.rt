//! Path attributes: octets of an UPDATE come in, the attributes of a route go out, and back.
//!
//! `read` takes a field of path attributes and the kind of peer, and gives an `Attrs`, which is
//! always legal, with what is wrong with the field. An `Attrs` is asked by its getters, compared,
//! ordered, hashed and stripped; `size` and `write_into` spell it for a peer of either kind.
//!
//! - `types` has the numbers of the types, `table` a row for each: its number, its name, its flags and
//!   values, and what comes of one that isn't well formed; `mode` says how a peer spells AS numbers.
//! - `reading` and its folder: `field` takes a field apart, `values` judges each attribute by the
//!   table, `gathering` keeps what counts, `two` puts AS4_PATH and AS4_AGGREGATOR in their places.
//! - `faults` says what is wrong with a field, for the UPDATE and for the log.
//! - `attrs` says how attributes lie in memory, `heads` what of each is not its value; `getters` and
//!   `stripping` ask and change them, by the communities that are like `patterns`; `tags` are a route's
//!   communities, found once for many tests; by `marks` most numbers that a path lacks are known, and most communities that a route
//!   does; `asked` is which communities rules ask for.
//! - `segments` takes a path apart, for AS numbers in two octets and in four.
//! - `writing` and its folder: `parts` is the list of what is to be written, by rising type, which
//!   `size` counts and `write_into` writes; `head` spells what stands before a value, `narrow` the
//!   values for two-octet peers.
//! - `laws` are contracts of functions that do nothing.
//!
//! The tests stand in `rs_tests`, in `src/attrs`.
#![tactic(auto)]

mod asked;
mod attrs;
mod faults;
mod getters;
mod heads;
mod laws;
mod marks;
mod mode;
mod patterns;
mod reading;
mod segments;
mod stripping;
mod table;
mod tags;
mod types;
mod writing;

pub use asked::AskedTags;
pub use attrs::Attrs;
pub use faults::{AttributeFault, Cause, Faulted, Faults};
pub use getters::AttributeRef;
pub use laws::{
    attributes_are_legal, changes_overlay, fields_are_read, fields_mean_one, paths_are_read,
    slices_are_octets, spelling_reads_back,
};
pub use mode::Mode;
pub use patterns::{CommunityPattern, LargeCommunityPattern};
pub use reading::{Parsed, read};
pub use segments::{Numbers, PathSegment, Segments};
pub use stripping::{OwnedStrip, Strip, stripped};
pub use table::attribute_name;
pub use tags::Tags;
pub use types::{
    AGGREGATOR, AS_PATH, AS4_AGGREGATOR, AS4_PATH, ATOMIC_AGGREGATE, CLUSTER_LIST, COMMUNITIES,
    EXTENDED_COMMUNITIES, LARGE_COMMUNITY, LOCAL_PREF, MP_REACH_NLRI, MP_UNREACH_NLRI,
    MULTI_EXIT_DISC, NEXT_HOP, ORIGIN, ORIGINATOR_ID,
};
pub use writing::{size, size_at_most, write_into};
