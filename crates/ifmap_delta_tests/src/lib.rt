//! Tests of subscriptions on a real graph: small graphs with random publishes, each change beside what
//! searches find before and after it. Worked examples are in `tests/scripts`.
#![tactic(auto)]

#[cfg(test)]
mod comparing;
#[cfg(test)]
mod faults;
#[cfg(test)]
mod ops;
#[cfg(test)]
mod randoms;
#[cfg(test)]
mod rolling;
#[cfg(test)]
mod sought;
#[cfg(test)]
mod stepping;
#[cfg(test)]
mod worlds;
