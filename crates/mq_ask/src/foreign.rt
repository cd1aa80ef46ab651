//! Files that are taken for access lists, and are others.

// The settings of mosquitto.conf(5), but for those that are also words of an access list.
const SETTINGS: &[&str] = &[
    "acl_file",
    "address",
    "addresses",
    "allow_anonymous",
    "allow_duplicate_messages",
    "allow_zero_length_clientid",
    "auth_plugin",
    "auth_plugin_deny_special_chars",
    "auto_id_prefix",
    "autosave_interval",
    "autosave_on_changes",
    "bind_address",
    "bind_interface",
    "bridge_alpn",
    "bridge_attempt_unsubscribe",
    "bridge_bind_address",
    "bridge_cafile",
    "bridge_capath",
    "bridge_certfile",
    "bridge_identity",
    "bridge_insecure",
    "bridge_keyfile",
    "bridge_max_packet_size",
    "bridge_outgoing_retain",
    "bridge_protocol_version",
    "bridge_psk",
    "bridge_require_ocsp",
    "bridge_tls_version",
    "cafile",
    "capath",
    "certfile",
    "check_retain_source",
    "ciphers",
    "ciphers_tls1.3",
    "cleansession",
    "clientid",
    "clientid_prefixes",
    "connection",
    "connection_messages",
    "crlfile",
    "dhparamfile",
    "http_dir",
    "idle_timeout",
    "include_dir",
    "keepalive_interval",
    "keyfile",
    "listener",
    "local_cleansession",
    "local_clientid",
    "local_password",
    "local_username",
    "log_dest",
    "log_facility",
    "log_timestamp",
    "log_timestamp_format",
    "log_type",
    "max_connections",
    "max_inflight_bytes",
    "max_inflight_messages",
    "max_keepalive",
    "max_packet_size",
    "max_qos",
    "max_queued_bytes",
    "max_queued_messages",
    "max_topic_alias",
    "memory_limit",
    "message_size_limit",
    "mount_point",
    "notification_topic",
    "notifications",
    "notifications_local_only",
    "password",
    "password_file",
    "per_listener_settings",
    "persistence",
    "persistence_file",
    "persistence_location",
    "persistent_client_expiration",
    "pid_file",
    "plugin",
    "port",
    "protocol",
    "psk_file",
    "psk_hint",
    "queue_qos0_messages",
    "remote_clientid",
    "remote_password",
    "remote_username",
    "require_certificate",
    "restart_timeout",
    "retain_available",
    "round_robin",
    "set_tcp_nodelay",
    "socket_domain",
    "start_type",
    "store_clean_interval",
    "sys_interval",
    "threshold",
    "tls_engine",
    "tls_engine_kpass_sha1",
    "tls_keyform",
    "tls_version",
    "try_private",
    "upgrade_outgoing_qos",
    "use_identity_as_username",
    "use_subject_as_username",
    "use_username_as_clientid",
    "username",
    "websockets_headers_size",
    "websockets_log_level",
];

const PASSWORDS: &str = "a password file, not an access list (nothing of it is shown)";

const SECURITY: &str = "mosquitto's dynamic security, which isn't read: it is not an access list";

const JSON: &str = "JSON, not an access list";

const XML: &str = "XML, not an access list";

const EMQX: &str = "an access list of EMQX, not one of mosquitto's";

const CONFIGURATION: &str =
    "a mosquitto.conf, not an access list: that is the file behind its acl_file";

fn is_setting(word: &str) -> bool {
    SETTINGS.contains(&word) || word.starts_with("auth_opt_") || word.starts_with("plugin_opt_")
}

// The first line that says something.
fn first_line(text: &str) -> &str {
    let mut lines = text.split('\n').map(|line| line.trim());
    let first = lines.find(|line| !line.is_empty() && !line.starts_with('#'));
    first.unwrap_or("")
}

fn json_kind(text: &str) -> &'static str {
    if text.contains("\"defaultACLAccess\"") || text.contains("\"roles\"") {
        return SECURITY;
    }
    JSON
}

/// What a file is that is no access list, by its first line: a password file, a mosquitto.conf, mosquitto's dynamic
/// security, or a list of another broker. None of these has the first line of a list.
pub fn foreign_words(text: &str) -> Option<&'static str> {
    let line = first_line(text);
    let word = line.split(' ').next().unwrap_or("");
    if line.starts_with("{allow") || line.starts_with("{deny") {
        return Some(EMQX);
    }
    if line.starts_with('{') || line.starts_with('[') {
        return Some(json_kind(text));
    }
    if line.starts_with('<') {
        return Some(XML);
    }
    if is_setting(word) {
        return Some(CONFIGURATION);
    }
    word.contains(':').then_some(PASSWORDS)
}
