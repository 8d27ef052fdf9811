//! Tests of `run`, over a shelf and a sink in memory: what no list of runs can show. The lists stand in
//! `lzk_tests_runs`.

mod chained;
mod meeting;
mod runs;
