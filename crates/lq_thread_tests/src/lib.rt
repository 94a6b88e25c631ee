//! Tests of scripts by one thread and by a server and threads, and of the program's words; of runs
//! of lq_script_lines over devices and clients of their own (`lines`, `clients`); and each public
//! call of lq_script, from its home (`scripts`). Begin with `scripts`.
#![tactic(auto)]

#[cfg(test)]
mod batches;
#[cfg(test)]
mod clients;
#[cfg(test)]
mod device_calls;
#[cfg(test)]
mod failing_devices;
#[cfg(test)]
mod faults;
#[cfg(test)]
mod gates;
#[cfg(test)]
mod lines;
#[cfg(test)]
mod runs;
#[cfg(test)]
mod scripts;
#[cfg(test)]
mod words;
