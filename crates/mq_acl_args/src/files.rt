//! The files that a question is about; `-` is standard input.
ghost use Rattle.std.specs.Prelude.{◌≡◌, map};
ghost use Rattle.std.specs.Option.{option_copied};
ghost use Rattle.mq_acl_args.specs.Files.{input_count, is_input as is_dash, script_file};

/// Whether the file is standard input.
pub fn is_input(file: &str) -> bool
    ensures { result ≡ is_dash file.now }
{
    file == "-"
}

/// How many of the files are standard input.
pub(crate) fn inputs_among(files: &[&str]) -> usize
    ensures { result ≡ input_count (map (λ file. file.now) files.now) }
{
    files.iter().filter(|file| is_input(file)).count()
}

/// The same of a script, if there is one.
pub(crate) fn input_in(script: Option<&str>) -> usize
    ensures { result ≡ input_count (script_file (option_copied script.entry)) }
{
    match script {
        Some(script) => inputs_among(&[script]),
        None => 0,
    }
}
