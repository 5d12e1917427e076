// Many cases, with what the rules give for each.
#![tactic(auto)]

#[cfg(test)]
mod assembly;
#[cfg(test)]
mod cases;
#[cfg(test)]
mod explained;
#[cfg(test)]
mod read_lines;
