//! The path of a folder for runs.
use std::time::SystemTime;
use std::{env, io};

/// The path of a folder that doesn't exist yet, below that of temporary files.
pub(crate) fn fresh_path(rt: &HostRuntime) -> io::Result<String> {
    let nanoseconds = match SystemTime::now(rt)?.duration_since(SystemTime::UNIX_EPOCH) {
        Ok(age) => age.as_nanos(),
        Err(_) => 0,
    };
    let name = format!(in rt.alloc(); "gq_bench-{nanoseconds}")?;
    let path = env::temp_dir(rt)?.join(rt.alloc(), name.as_str())?;
    Ok(path.into_string())
}
