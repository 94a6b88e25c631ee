//! Tests of lq_value, lq_predicate and lq_script_request, of what no script or formula can show; of
//! the display texts of lq_script_lines; and of lq_desk_sub, lq_script_desk, lq_board and lq_port.
//! A module for each subject. `plain_reply` makes a reply as a JSON value first, of `members`, to
//! compare with the replies that are written piece by piece. Begin with `plain_reply`.
#![tactic(auto)]

#[cfg(test)]
mod boards;
#[cfg(test)]
mod displays;
#[cfg(test)]
mod json_values;
#[cfg(test)]
mod members;
#[cfg(test)]
mod patterns;
#[cfg(test)]
mod plain_reply;
#[cfg(test)]
mod ports;
#[cfg(test)]
mod predicate_copies;
#[cfg(test)]
mod predicates;
#[cfg(test)]
mod replies;
#[cfg(test)]
mod slot_tables;
#[cfg(test)]
mod subs;
#[cfg(test)]
mod watches;
