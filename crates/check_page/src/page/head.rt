//! The file page/head.html: the page up to its style. Written by scripts/page.py.

/// The text of the file.
pub(crate) const TEXT: &str = "<!DOCTYPE html>
<html lang='en'>
<head>
<meta charset='utf-8'>
<meta name='viewport' content='width=device-width, initial-scale=1'>
<meta http-equiv='Content-Security-Policy' content='default-src &#39;none&#39;; img-src data:; style-src &#39;unsafe-inline&#39;; script-src &#39;unsafe-inline&#39;; base-uri &#39;none&#39;; form-action &#39;none&#39;'>
<meta name='color-scheme' content='dark'>
<title>Segyolant: report of a pool</title>
<link rel='icon' href='data:,'>
";
