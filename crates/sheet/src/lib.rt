// Worlds written down as sheets, and what a world, written or not, makes of a book.
#![tactic(auto)]

pub mod judgement;
pub mod keeping;
pub mod sheet;

pub use judgement::judge;
pub use keeping::keeps;
pub use sheet::Sheet;
