// Tables of edge cases: `arith` and `settlement` against figures that were worked apart from their code. It holds tests only.
#![tactic(auto)]

#[cfg(test)]
mod answers;
#[cfg(test)]
mod areas;
#[cfg(test)]
mod certifying;
#[cfg(test)]
mod dividing;
#[cfg(test)]
mod filing;
#[cfg(test)]
mod interpolating;
#[cfg(test)]
mod splits;
