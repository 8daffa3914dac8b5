// Tests of loading: every limit at and past it, every duplicate, and what a refused line leaves.

#![tactic(auto)]

#[cfg(test)]
mod samples;
#[cfg(test)]
mod tests;
