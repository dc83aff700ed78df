//! A disk over a folder of another disk.
//!
//! What is done in the folder is a whole disk's work: a `SubDisk` is handed to code that is generic over `Disk`, as any other. It is seen as its
//! own story: what is held behind the folder's prefix, and each call since it was made, with the prefix cut off and moments counted from then.
//! A ticket of it is one of the other disk at the moment that this is there.
//!
//! Promised: it is a lawful disk; its calls touch no path outside of the folder; its count of faults begins at 0, and rises only where the other
//! disk's does. `into_disk` hands the other disk back, and says what is known of it (`GoesOn`): outside of the folder nothing has changed, neither
//! in what is held nor in what a crash leaves, now or at any moment since; and what a crash leaves in the folder is what one leaves of the folder's
//! disk.
//!
//! From where it goes on is told by a type with ghost members (`Start`), which the proof of a call picks. So the disk that generic code gives back
//! is known to go on from the one that was handed in, and its reach may depend on the folder. (Own rules: no part of the BitBake User Manual.)
#![tactic(auto)]

mod cut;
mod ready;
mod sub;
mod tally;

pub use ready::make_ready;
pub use sub::{Start, SubDisk};
