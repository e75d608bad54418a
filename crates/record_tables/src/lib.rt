// Tables of edge cases of the log, the records and the auxiliary rules. It holds tests only.
#![tactic(auto)]

#[cfg(test)]
mod answers;
#[cfg(test)]
mod logs;
#[cfg(test)]
mod minutes;
#[cfg(test)]
mod ranges;
#[cfg(test)]
mod traces;
