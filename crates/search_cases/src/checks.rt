// How a case is run.
use crate::finding::finding_differs;
use crate::serving::serving_differs;
use case_files::{Case, CaseFault, Program};
use std::alloc::Global;

/// The keys of a case that say what is expected.
const EXPECTATIONS: &[&str] = &[
    "answer", "to", "beacon", "ask", "tells", "passes", "turn", "found",
];

/// All keys of a case.
const KEYS: &[&str] = &[
    "known", "guid", "port", "order", "from", "datagram", "pieces", "answer", "to", "beacon",
    "names", "copies", "rounds", "ask", "tells", "passes", "turn", "found",
];

/// What runs the cases of searches.
pub struct SearchCases;

impl Program for SearchCases {
    fn keys(&self) -> &'static [&'static str] {
        KEYS
    }

    fn expectations(&self) -> &'static [&'static str] {
        EXPECTATIONS
    }

    fn differs(&self, alloc: Global, case: &Case<'_>) -> Result<Option<String>, CaseFault> {
        match case.find("names") {
            Some(names) => finding_differs(alloc, case, names),
            None => serving_differs(alloc, case),
        }
    }
}
