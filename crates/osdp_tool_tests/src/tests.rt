//! What the tool and the monitor tell, streams that fail, and the texts of faults.

mod check;
mod faulty;
mod job;
mod listener;
mod make;
mod moments;
mod monitor;
mod stream;
mod tool;
mod words;
