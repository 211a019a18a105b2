use crate::numbers::{ClassNo, FeatureNo, MappingNo, Oid};
use crate::seq::Seq;
use crate::text::Text;

pub type Bytes = Seq<u8>;
/// The words of a command line.
pub type WordList = Seq<Text>;

pub type NameList = Seq<Text>;
/// The numbers of calls that are to fail.
pub type CallList = Seq<u64>;

pub type OidList = Seq<Oid>;

pub type ClassNoList = Seq<ClassNo>;

pub type FeatureNoList = Seq<FeatureNo>;

pub type MappingList = Seq<MappingNo>;

pub type ExtentNumberList = Seq<u32>;
