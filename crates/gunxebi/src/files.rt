// Reading the files that are named on the command line.
use crate::ending::Trouble;
use crate::excerpt::ROW;
use std::fs::File;
use std::io;
use std::io::Read;
use task_file::LIMIT as TASK_LIMIT;

// What is read of a file: enough to see that it passes its limit, which is largest for a task file, and to show what
// stands there in two rows.
const ENOUGH: usize = TASK_LIMIT + 2 * ROW;

fn read_enough(rt: &HostRuntime, path: &str) -> io::Result<Vec<u8>> {
    let mut file = File::open(rt, path)?.take(ENOUGH as u64);
    let mut bytes = Vec::new(rt.alloc());
    file.read_to_end(&mut bytes)?;
    Ok(bytes)
}

pub fn read_file(rt: &HostRuntime, path: &str) -> Result<Vec<u8>, Trouble> {
    read_enough(rt, path).or_else(|e| {
        let path = String::from_str(rt.alloc(), path)?;
        Err(Trouble::UnreadableFile(path, e))
    })
}
