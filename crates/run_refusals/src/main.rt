// Writes the plain words of every refusal, and the sections' names: the two tables of docs/REFUSALS.md.
#![tactic(auto)]

use reasons::{detail, place, reason, section};
use std::io;

fn main(rt: HostRuntime) -> io::Result<()> {
    println!(rt; "| number | what it says | place | detail |\n|---|---|---|---|")?;
    for number in 1..26 {
        println!(rt;
            "| {number} | {} | {} | {} |",
            reason(number),
            place(number),
            detail(number)
        )?;
    }
    println!(rt; "\n| section | |\n|---|---|")?;
    for number in 0..9 {
        println!(rt; "| {number} | {} |", section(number))?;
    }
    Ok(())
}
